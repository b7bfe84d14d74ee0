// How many nodes may be out of work and some node still be safe (theorem 4 of Chiu and Wu 1994), without code.
#![tactic(auto)]
