//! A worked search. This function does nothing: its contract is what the search comes to.

ghost use Rattle.std.specs.Prelude.{◌≡◌, [], Ok};
ghost use Rattle.ttp_model.specs.Rules.{IsInstance};
ghost use Rattle.ttp_model.specs.Delays.{IsLeastDelay};
ghost use Rattle.ttp_model.specs.Worked.{one_message};
ghost use Rattle.search_trees.specs.Pieces.{AreRight};
ghost use Rattle.search_core.specs.World.{start, open_names, all_pieces};
ghost use Rattle.search_core.specs.Bounds.{IsTop, AreHonest, Bounds, known};
ghost use Rattle.search_core.specs.Steps.{Runs};
ghost use Rattle.search_core.specs.Worked.{root_closed, all_closed};

/// A plan of delay 9 is there. One worker that begins with it takes the root and closes it at 9: each
/// event is honest, no name is open then, and by `bounds_hold` no delay is less.
pub fn one_message_is_searched()
    ensures instance { IsInstance one_message }
    ensures top { IsTop one_message 9 }
    ensures honest { AreHonest one_message (start 1 9) root_closed }
    ensures runs { Runs (start 1 9) root_closed (Ok tt) all_closed }
    ensures none_open { open_names all_closed ≡ [] }
    ensures known { known all_closed ≡ 9 }
    ensures right { AreRight one_message (all_pieces all_closed) }
    ensures bounds { Bounds one_message 9 all_closed }
    ensures least { IsLeastDelay one_message 9 }
{}
