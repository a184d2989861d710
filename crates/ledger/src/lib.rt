// Demand 3: the ledger of the calls closes. Definitions and theorems over those of `book`, `assembler` and `batch`; no code.
#![tactic(auto)]
