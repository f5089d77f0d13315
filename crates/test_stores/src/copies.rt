// The calls of `copy` at their bounds: nothing, all, one byte too many, and places near the largest number.
ghost use Rattle.std.specs.Prelude.{◌≡◌, true};

pub fn try_all() {
    stores();
    refusals();
    comparisons();
    beginnings();
    searches();
}

// The room is just enough.
fn stores() {
    let mut d = [0u8; 4];
    expect(copy::put(&mut d, 1, b"abc"));
    expect(copy::equal(&d, b"\0abc"));
    expect(copy::put(&mut d, 4, b""));
}

// It is one short, it is none, and the sum of place and length passes the largest number.
fn refusals() {
    let mut d = [0u8; 4];
    expect(!copy::put(&mut d, 2, b"abc"));
    expect(!copy::put(&mut d, 5, b""));
    expect(!copy::put(&mut d, 18446744073709551615, b"abc"));
    expect(copy::equal(&d, b"\0\0\0\0"));
}

fn comparisons() {
    expect(copy::equal(b"", b""));
    expect(copy::equal(b"abc", b"abc"));
    expect(!copy::equal(b"abc", b"abd"));
    expect(!copy::equal(b"abc", b"ab"));
    expect(!copy::equal(b"ab", b"abc"));
}

fn beginnings() {
    expect(copy::begins(b"abc", b""));
    expect(copy::begins(b"abc", b"ab"));
    expect(copy::begins(b"abc", b"abc"));
    expect(!copy::begins(b"abc", b"abcd"));
    expect(!copy::begins(b"abc", b"bc"));
}

fn searches() {
    expect(copy::find(b"", b'a') == 0);
    expect(copy::find(b"abca", b'a') == 0);
    expect(copy::find(b"abc", b'c') == 2);
    expect(copy::find(b"abc", b'd') == 3);
}

// A check that is proved where it is called.
fn expect(ok: bool)
    requires { ok ≡ true }
{
    prove!(ok);
}
