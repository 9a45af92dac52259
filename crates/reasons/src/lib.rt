// The reasons, and the rule of a sound state that a state breaks: the definitions stand in specs/.
#![tactic(auto)]
