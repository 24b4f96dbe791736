// Bytes, texts and lists as the rules speak of them: definitions, no code.

#![tactic(auto)]
