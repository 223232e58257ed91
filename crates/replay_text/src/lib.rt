// What a replay prints, worked examples of it, and the theorem that ties it to histories. No code: crate replay runs a trace.
#![tactic(auto)]
