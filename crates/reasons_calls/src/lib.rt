// What a call to explain answers, and what each reason says: the definitions stand in specs/.
#![tactic(auto)]
