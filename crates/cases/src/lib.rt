// The worked cases of the documents, in specs/. They stand apart from the rules, since to compute pictures takes as long as all proofs of the
// rules together, and every edit of the rules would pay for it.
#![tactic(auto)]
