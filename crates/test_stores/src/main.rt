// The stores filled to the last place and one past it, by the operations on them, and what they answer, printed: open elements and their
// texts, rdf:IDs, the namespaces of a start tag, labels; and copies at their bounds, which print nothing.
#![tactic(auto)]

mod copies;
mod elements;
mod identifiers;
mod labels;
mod namespaces;
mod printing;

fn main(rt: HostRuntime) {
    let out = rt.stdout();
    elements::try_all(out);
    identifiers::try_all(out);
    namespaces::try_all(out);
    labels::try_all(out);
    copies::try_all();
}
