// No code: what is proved of the definitions of crate `spec` stands in specs/.

#![tactic(auto)]
