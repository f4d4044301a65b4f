// What a master sends and hears on the two wires: definitions and laws over them, and no code.
#![tactic(auto)]
