//! What is read is in the grammar of sh(1).

ghost use Rattle.std.specs.Prelude.{◌≡◌, ℕ, List, Some};
ghost use Rattle.plan_shell.specs.declared.step.Step.{Step};
ghost use Rattle.plan_shell.specs.Grammar.{IsList};
ghost use Rattle.plan_shell.specs.Pieces.{pieces_of};
ghost use Rattle.plan_shell.specs.Reading.{steps_in};
ghost use Rattle.plan_shell.specs.Tree.{tree_of};

/// The pieces of a command that is read are a list in the grammar of sh(1), and the steps of the command make the tree
/// of that list.
#[tactic(auto, using(crate::proofs::ReadingLemmas::read_is_in_grammar))]
pub fn read_is_in_grammar()
    ensures { (command : List ℕ) (steps : List Step) → steps_in command ≡ Some steps →
        (pieces : List (List ℕ)) × (pieces_of command ≡ Some pieces) × IsList pieces (tree_of steps) }
{}
