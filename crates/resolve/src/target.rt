// RFC 3986, section 5.2.2: what a reference on a base is made of.
ghost use Rattle.std.specs.Prelude.{◌≡◌};
ghost use Rattle.resolve.specs.Parts.{parts_of};
ghost use Rattle.resolve.specs.Target.{Aimed, Leads};

use crate::parts::Parts;
use crate::{parts, path};

// Before its path stand `front` bytes of the base and `own` of the reference. Its path, with dot segments, is the reference's from there up to
// `path`; where it is merged, the base's from `front` up to `lead` and a "/" come before that. Behind it comes the rest of the reference.
#[derive(Clone, Copy)]
pub struct Target {
    pub front: usize,
    pub own: usize,
    pub lead: Option<usize>,
    pub path: usize,
    pub authority: bool,
}

pub fn transform(base: &[u8], reference: &[u8]) -> Target
    ensures { Aimed base.now reference.now result }
{
    let r = parts::parse(reference);
    if 0 < r.scheme {
        return Target {
            front: 0,
            own: r.authority,
            lead: None,
            path: r.path,
            authority: r.scheme < r.authority,
        };
    }
    if r.query == 0 {
        let front = copy::find(base, b'#');
        return Target {
            front,
            own: 0,
            lead: None,
            path: 0,
            authority: true,
        };
    }
    let b = parts::parse(base);
    if 0 < r.authority {
        return Target {
            front: b.scheme,
            own: r.authority,
            lead: None,
            path: r.path,
            authority: true,
        };
    }
    let authority = b.scheme < b.authority;
    if r.path == 0 {
        return Target {
            front: b.path,
            own: 0,
            lead: None,
            path: 0,
            authority,
        };
    }
    if reference[0] == b'/' {
        return Target {
            front: b.authority,
            own: 0,
            lead: None,
            path: r.path,
            authority,
        };
    }
    Target {
        front: b.authority,
        own: 0,
        lead: merge(base, b),
        path: r.path,
        authority,
    }
}

// Section 5.2.3: where what a base gives of its path ends when another is merged with it, before its last "/", if it
// gives any.
fn merge(base: &[u8], b: Parts) -> Option<usize>
    requires { b ≡ parts_of base.now }
    ensures { Leads base.now result }
{
    let authority = b.authority;
    let path = b.path;
    if path <= authority {
        if b.scheme < authority {
            return Some(authority);
        }
        return None;
    }
    let n = path::through_last(&base[authority..path]);
    if n == 0 {
        return None;
    }
    Some(authority + (n - 1))
}
