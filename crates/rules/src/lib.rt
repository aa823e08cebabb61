// The types of the state and of the answers. The rules of document 01 are definitions on their models, in specs/.
#![tactic(auto)]

pub mod state; // state.rt: the state and its parts
pub mod answer; // answer.rt: what the machine's calls answer
