// What a snapshot never meets, and that ends of different slots commute: theorems about the model, in specs/ and proofs/. No code.
#![tactic(auto)]
