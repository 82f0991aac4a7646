// EPL as a language of units: its grammar in specs/, and that what stands first is found, in proofs/. No code.
#![tactic(auto)]
