// What an attribute is there for, its role, by its name; and whether its value is good in it.
ghost use Rattle.std.specs.Prelude.{◌≡◌, ◌++◌};
ghost use Rattle.spec.specs.Bytes.{require◌or◌};
ghost use Rattle.spec.specs.StartTag.{role_number, role_of, judge, xml_lang, rdf_node_id};
ghost use Rattle.start_attributes.specs.Role.{role_is, attribute_role};
ghost use Rattle.start_attributes.specs.Judgment.{said};

use crate::vocabulary::RdfTerm;
use spec::{Refusal, Verdict};

// What an attribute is there for, by its name.
#[derive(Clone, Copy, PartialEq, Eq, Debug)]
pub enum Role {
    Nothing,
    XmlLang,
    XmlBase,
    Id,
    BagId,
    NodeId,
    About,
    Resource,
    Datatype,
    ParseType,
    Type,
    Forbidden,
    Property,
}

// The number that stands for a role in the table of an element's attributes.
impl From<Role> for u8 {
    ghost from_gives = { λ role word. word ≡ role_number (role_is role) };

    #[tactic(auto, unfolding(spec::specs::StartTag::role_number))]
    fn from(role: Role) -> Self {
        match role {
            Role::Nothing => 0,
            Role::XmlLang => 1,
            Role::XmlBase => 2,
            Role::Id => 3,
            Role::BagId => 4,
            Role::NodeId => 5,
            Role::About => 6,
            Role::Resource => 7,
            Role::Datatype => 8,
            Role::ParseType => 9,
            Role::Type => 10,
            Role::Forbidden => 11,
            Role::Property => 12,
        }
    }
}

// The role of an attribute, from its name as written and its expanded name, which is in two parts.
pub fn role_of(name: &[u8], space: &[u8], local: &[u8]) -> Role
    ensures { role_is result ≡ role_of name.now (space.now ++ local.now) }
{
    if !copy::begins(name, b"xml") {
        return attribute_role(crate::vocabulary::rdf_term(space, local));
    }
    if copy::equal(name, b"xml:lang") {
        return Role::XmlLang;
    }
    if copy::equal(name, b"xml:base") {
        return Role::XmlBase;
    }
    Role::Nothing
}

// Is a value good in its role?
pub fn judge(role: Role, value: &[u8]) -> Result<(), Refusal>
    ensures { said result tt ≡ judge (role_is role) value.now }
{
    match role {
        Role::Nothing => Ok(()),
        Role::XmlLang => judge_language(value),
        Role::XmlBase => require(iri::is_iri(value), Refusal::BadIri),
        Role::Id => require(utils::is_nc_name(value), Refusal::NotNcName),
        Role::BagId => require(utils::is_nc_name(value), Refusal::NotNcName),
        Role::NodeId => judge_label(value),
        Role::About => Ok(()),
        Role::Resource => Ok(()),
        Role::Datatype => Ok(()),
        Role::ParseType => Ok(()),
        Role::Type => Ok(()),
        Role::Forbidden => Err(Refusal::Reserved),
        Role::Property => Ok(()),
    }
}

// The role of an attribute by the term that its expanded name is.
fn attribute_role(term: RdfTerm) -> Role
    ensures { result ≡ attribute_role term }
{
    match term {
        RdfTerm::Id => Role::Id,
        RdfTerm::About => Role::About,
        RdfTerm::ParseType => Role::ParseType,
        RdfTerm::Resource => Role::Resource,
        RdfTerm::NodeId => Role::NodeId,
        RdfTerm::Datatype => Role::Datatype,
        RdfTerm::Type => Role::Type,
        RdfTerm::BagId => Role::BagId,
        RdfTerm::Rdf | RdfTerm::Li | RdfTerm::AboutEach | RdfTerm::AboutEachPrefix =>
            Role::Forbidden,
        RdfTerm::Description | RdfTerm::Other => Role::Property,
    }
}

// 9 and 13 of a node's name.
fn judge_label(value: &[u8]) -> Result<(), Refusal>
    ensures { said result tt ≡ judge rdf_node_id value.now }
{
    if !utils::is_nc_name(value) {
        return Err(Refusal::NotNcName);
    }
    if label::ends_in_stop(value) {
        return Err(Refusal::BadLabel);
    }
    if label::is_generated(value) {
        return Err(Refusal::BadLabel);
    }
    Ok(())
}

// 10 of xml:lang: a tag, and the empty value, by which no language is in force, are good.
fn judge_language(value: &[u8]) -> Result<(), Refusal>
    ensures { said result tt ≡ judge xml_lang value.now }
{
    match langtag::parse(value) {
        Verdict::Good => Ok(()),
        Verdict::Clears => Ok(()),
        Verdict::Bad => Err(Refusal::BadLanguage),
    }
}

// This refusal unless the test passed.
fn require(passed: bool, refusal: Refusal) -> Result<(), Refusal>
    ensures { said result tt ≡ require◌or◌ passed refusal }
{
    if passed {
        return Ok(());
    }
    Err(refusal)
}
