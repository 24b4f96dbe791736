// No code: the bench figures, standard lines of records, lines with their answers, and listings with their outputs, proved over the definitions: see specs/.

#![tactic(auto)]
