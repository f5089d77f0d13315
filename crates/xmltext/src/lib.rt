// The XML text of a parseType Literal, counted always and stored where `on`: crate writer says how.
// A start tag is `open_tag`, each attribute, `close_tag`; specs/Tags.antt has the law.
#![tactic(auto)]

ghost use Rattle.spec.specs.Pyx.{attribute};
ghost use Rattle.spec.specs.XmlLiteral.{text_xml, attribute_xml, end_tag_xml};
ghost use Rattle.writer.specs.Put.{Put};
ghost use Rattle.xmltext.specs.Tags.{open_xml, close_xml};

// How a start tag opens: `<` and the name.
pub fn open_tag(out: &mut [u8], at: usize, on: bool, name: &[u8]) -> usize
    ensures { Put on out.old out.new at result (open_xml name.now) }
{
    let to = writer::byte(out, at, on, b'<');
    writer::bytes(out, to, on, name)
}

// One attribute, with the space before it.
pub fn attribute(out: &mut [u8], at: usize, on: bool, name: &[u8], value: &[u8]) -> usize
    ensures { Put on out.old out.new at result (attribute_xml (attribute name.now value.now)) }
{
    let to = writer::byte(out, at, on, b' ');
    let to = writer::bytes(out, to, on, name);
    let to = writer::bytes(out, to, on, b"=\"");
    let to = writer::value::write(out, to, on, value);
    writer::byte(out, to, on, b'"')
}

// How a start tag closes: `>`.
pub fn close_tag(out: &mut [u8], at: usize, on: bool) -> usize
    ensures { Put on out.old out.new at result close_xml }
{
    writer::byte(out, at, on, b'>')
}

// An end tag.
pub fn end_tag(out: &mut [u8], at: usize, on: bool, name: &[u8]) -> usize
    ensures { Put on out.old out.new at result (end_tag_xml name.now) }
{
    let to = writer::bytes(out, at, on, b"</");
    let to = writer::bytes(out, to, on, name);
    writer::byte(out, to, on, b'>')
}

// Text.
pub fn text(out: &mut [u8], at: usize, on: bool, s: &[u8]) -> usize
    ensures { Put on out.old out.new at result (text_xml s.now) }
{
    writer::content::write(out, at, on, s)
}
