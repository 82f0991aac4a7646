// One command line of a file replaced by another: what is asked of the two, and what becomes of the labels. Definitions
// in specs/, laws in proofs/. No code.
#![tactic(auto)]
