// Words: what the operators mean on words of 1 to 64 bits, in a circuit and in a program on 64-bit words, and the laws between the two. The code is in `operators` and `instructions`.
#![tactic(auto)]
