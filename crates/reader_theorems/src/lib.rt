// No code: what is proved of documents that are run through the calls of crate `reader` stands in specs/.

#![tactic(auto)]
