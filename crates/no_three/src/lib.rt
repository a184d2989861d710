// Document 02, No. 11: no public call gives number 3. Definitions and one theorem over those of every crate that has calls; no code.
#![tactic(auto)]
