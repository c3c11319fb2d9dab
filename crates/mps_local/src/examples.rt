//! Worked projections, as theorems: they check the definitions.
ghost use Rattle.std.specs.Prelude.{◌≡◌, codes, [], ◌∷◌, Some, None};
ghost use Rattle.mps_base.specs.declared.value.Sort.TheVariants.{Int, Text};
ghost use Rattle.mps_global.specs.Global as global;
ghost use Rattle.mps_global.specs.Global.{End as over, Choice};
ghost use Rattle.mps_local.specs.Local.{End, Var, Rec, Send, Recv, Select, Branch, NoMore, More};
ghost use Rattle.mps_local.specs.Actions.{Ends, Sends, Receives, Chooses, Picks, head, type_left};
ghost use Rattle.mps_local.specs.Examples.{a, b, c, at_a, at_b, at_c, Does, CantMergeFirst, MergesFully};
ghost use Rattle.mps_local.specs.Examples.{chosen, chosen_of_three, int_to, bool_to, only, one_of, told, counted};
ghost use Rattle.mps_local.specs.Examples.{counted_labels, rounds, in_loops, outer, inner};
ghost use Rattle.mps_local.specs.Examples.{relay, ok_or_no, loops, ping, ping_pong};
ghost use Rattle.mps_local.specs.Examples.{go_or_stop, asking, asked, turns, inner_turn};
ghost use Rattle.mps_local.specs.Unfolding.{unfolded};

/// What roles do in short protocols, as worked out by hand: tests of the definition of projection, checked by the
/// prover.
pub fn worked_projections()
    ensures relay_of_a { Does at_a relay (Send at_b Int (Branch at_c ok_or_no)) }
    ensures relay_of_b { Does at_b relay (Recv at_a Int (Send at_c Int End)) }
    ensures relay_of_c { Does at_c relay (Recv at_b Int (Select at_a ok_or_no)) }
    ensures loops_of_a { Does at_a loops
        (Rec (codes "X") (Send at_c Int (Rec (codes "Y") (Send at_b Int (Var (codes "X")))))) }
    ensures loops_of_b { Does at_b loops
        (Rec (codes "X") (Rec (codes "Y") (Recv at_a Int (Var (codes "X"))))) }
    ensures loops_of_c { Does at_c loops
        (Rec (codes "X") (Recv at_a Int (Rec (codes "Y") (Var (codes "X"))))) }
    ensures idle_loop { Does at_c (global.Rec (codes "X") (int_to a b outer)) End }
    // The third role does the same in both branches.
    ensures same_value { Does at_c (chosen (int_to a c over) (int_to a c over))
        (Recv at_a Int End) }
    ensures same_choice { Does at_c (chosen (only c a (codes "x")) (only c a (codes "x")))
        (Select at_a (More (codes "x") End NoMore)) }
    ensures same_loop { Does at_c (in_loops (chosen (int_to a c outer) (int_to a c outer)))
        (Rec (codes "X") (Rec (codes "Y") (Recv at_a Int (Var (codes "X"))))) }
    // It does not, and the branches differ in nothing else.
    ensures sort_alone { CantMergeFirst (chosen (int_to a c over) (bool_to a c over)) }
    ensures peer_alone { CantMergeFirst (chosen (int_to a c over) (int_to b c over)) }
    ensures peer_of_a_choice_alone { CantMergeFirst
        (chosen (only a c (codes "x")) (only b c (codes "x"))) }
    ensures label_chosen_alone { CantMergeFirst
        (chosen (only c a (codes "x")) (only c a (codes "y"))) }
    ensures variable_alone { CantMergeFirst
        (in_loops (chosen (int_to a c outer) (int_to a c inner))) }
    ensures name_of_a_loop_alone { CantMergeFirst (chosen
        (global.Rec (codes "X") (int_to a c outer)) (global.Rec (codes "Y") (int_to a c inner))) }
    ensures kind_of_a_value_alone { CantMergeFirst (chosen (int_to a c over) (int_to c a over)) }
    ensures kind_of_a_choice_alone { CantMergeFirst
        (chosen (only a c (codes "x")) (only c a (codes "x"))) }
    ensures ending_alone { CantMergeFirst (chosen (int_to a c over) over) }
    // By full merging a label of its own tells it of the branch.
    ensures label_alone { MergesFully (chosen (only a c (codes "x")) (only a c (codes "y")))
        (Branch at_a (More (codes "x") End (More (codes "y") End NoMore))) }
    ensures what_follows_a_label { MergesFully
        (chosen (told a c (codes "x") (only b c (codes "y")))
        (told a c (codes "x") (only b c (codes "z"))))
        (Branch at_a (More (codes "x")
        (Branch at_b (More (codes "y") End (More (codes "z") End NoMore))) NoMore)) }
    // The labels of the first, in their order, and then those that the others have besides.
    ensures labels_in_order { MergesFully
        (chosen (one_of a c (codes "y") (codes "x")) (one_of a c (codes "w") (codes "x")))
        (Branch at_a (More (codes "y") End (More (codes "x") End (More (codes "w") End NoMore)))) }
    ensures three_branches { MergesFully (chosen_of_three (only a c (codes "x"))
        (only a c (codes "z")) (one_of a c (codes "x") (codes "y")))
        (Branch at_a (More (codes "x") End (More (codes "z") End (More (codes "y") End NoMore)))) }
    ensures sixteen_labels { MergesFully
        (chosen (Choice a c (counted 8 0)) (Choice a c (counted 8 8)))
        (Branch at_a (counted_labels 16 0)) }
    ensures seventeen_labels { CantMergeFirst
        (chosen (Choice a c (counted 8 0)) (Choice a c (counted 9 8))) }
    // What follows is merged in loops and after choices of its own too, if these have the same labels in the same order.
    ensures in_a_loop { MergesFully
        (chosen (global.Rec (codes "X") (told a c (codes "x") outer))
        (global.Rec (codes "X") (told a c (codes "y") outer)))
        (Rec (codes "X") (Branch at_a (More (codes "x") (Var (codes "X"))
        (More (codes "y") (Var (codes "X")) NoMore)))) }
    ensures after_its_own_choice { MergesFully
        (chosen (told c a (codes "x") (only a c (codes "y")))
        (told c a (codes "x") (only a c (codes "z"))))
        (Select at_a (More (codes "x")
        (Branch at_a (More (codes "y") End (More (codes "z") End NoMore))) NoMore)) }
    ensures order_of_choices { CantMergeFirst (chosen
        (one_of c a (codes "x") (codes "y")) (one_of c a (codes "y") (codes "x"))) }
    ensures a_loop_of_three_ends { MergesFully rounds
        (Rec (codes "X") (Branch at_a (More (codes "more") (Send at_a Int (Var (codes "X")))
        (More (codes "stop") End NoMore)))) }
{}

/// What short types allow first and what follows it, as worked out by hand: tests of the definition of unfolding,
/// checked by the prover.
pub fn worked_actions()
    ensures end { (head End ≡ Ends) × (type_left End None ≡ None)
        × (type_left End (Some 0) ≡ None) }
    ensures output { (head (Send at_b Int End) ≡ Sends at_b Int)
        × (type_left (Send at_b Int End) None ≡ Some End) }
    ensures one_loop { (head ping ≡ Sends at_b Int) × (type_left ping None ≡ Some ping) }
    ensures loop_in_a_loop { (head (Rec (codes "Y") ping) ≡ Sends at_b Int)
        × (type_left (Rec (codes "Y") ping) None ≡ Some ping) }
    // The inner loop's variable is its own.
    ensures loop_of_the_same_name { (head ping_pong ≡ Receives at_c Int)
        × (type_left ping_pong None ≡ Some ping) }
    ensures choice { (head (Select at_b ok_or_no) ≡ Chooses at_b (codes "ok" ∷ codes "no" ∷ []))
        × (type_left (Select at_b ok_or_no) (Some 1) ≡ Some End)
        × (type_left (Select at_b ok_or_no) (Some 2) ≡ None)
        × (type_left (Select at_b ok_or_no) None ≡ None) }
    ensures pick { (head (Branch at_b (More (codes "x") ping NoMore)) ≡ Picks at_b (codes "x" ∷ []))
        × (type_left (Branch at_b (More (codes "x") ping NoMore)) (Some 0) ≡ Some ping) }
    // The loop's variable is replaced after each label, and after the receipt the loop is back.
    ensures choice_in_a_loop { (unfolded asking ≡ Select at_b (go_or_stop asking))
        × (head asking ≡ Chooses at_b (codes "go" ∷ codes "stop" ∷ []))
        × (type_left asking (Some 0) ≡ Some (Recv at_b Text asking))
        × (type_left (Recv at_b Text asking) None ≡ Some asking)
        × (type_left asking (Some 1) ≡ Some End)
        × (type_left asking None ≡ None) }
    ensures pick_in_a_loop { (unfolded asked ≡ Branch at_b (go_or_stop asked))
        × (head asked ≡ Picks at_b (codes "go" ∷ codes "stop" ∷ []))
        × (type_left asked (Some 0) ≡ Some (Recv at_b Text asked))
        × (type_left (Recv at_b Text asked) None ≡ Some asked)
        × (type_left asked (Some 1) ≡ Some End)
        × (type_left asked None ≡ None) }
    // The outer loop's variable is replaced in the inner loop too.
    ensures loop_after_an_action { (unfolded turns ≡ Send at_c Int inner_turn)
        × (type_left turns None ≡ Some inner_turn)
        × (head inner_turn ≡ Sends at_b Int)
        × (unfolded inner_turn ≡ Send at_b Int turns)
        × (type_left inner_turn None ≡ Some turns) }
{}
