// The promises: theorems over the definitions of the chip, its traces and its recovery. No code.
#![tactic(auto)]
