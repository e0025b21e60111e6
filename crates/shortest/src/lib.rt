// The shortest 7-bit text of a sequence (request #108): definitions and theorems, without code of their own. `shortener` has the code.
#![tactic(auto)]
