// No code: things by ascending key in the first of some places, as definitions and laws.
#![tactic(auto)]
