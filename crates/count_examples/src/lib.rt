#![tactic(auto)]

// The limits of the theorem of counts, computed from the definition: `specs/CountExamples.antt`. There is no code here.
