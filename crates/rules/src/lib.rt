// Only definitions: what the documents say of records, apart from any program. See specs/.

#![tactic(auto)]
