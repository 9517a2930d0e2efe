//! Which plans are valid where it is a matter of one tick, one byte or one index? These functions do nothing: their contracts are laws
//! over the definitions alone.

ghost use Rattle.std.specs.Prelude.{◌≡◌, ◌∷◌, []};
ghost use Rattle.ttp_model.specs.Plans.{IsValid};
ghost use Rattle.ttp_model.specs.Delays.{delay};
ghost use Rattle.ttp_model.specs.Worked.{three_alike, three_alike_plan};
ghost use Rattle.evidence.specs.Edges.{just_in_time, uneven, uneven_cluster, uneven_on, uneven_plan};

/// A plan that keeps its rules by nothing more than it must: p starts at its release, ends when r starts and just before it is
/// copied out for its slot, which it fills; q and s start when the last message to them is copied in.
pub fn plan_that_just_keeps_the_rules()
    ensures valid { IsValid uneven just_in_time }
    ensures delay { delay uneven just_in_time ≡ 122 }
    ensures deadline { IsValid (uneven_on (uneven_cluster 4 7 122) 122) just_in_time }
    ensures apart { IsValid uneven (uneven_plan (43 ∷ 56 ∷ 80 ∷ 99 ∷ []) (3 ∷ 4 ∷ [])) }
{}

/// Plans that break one rule, and that by as little as they can: a round too many, a node twice, a capacity between two options, a
/// tick, two bytes, a channel too many or another one than there is. It is the second receiver of m that starts too early, and the first of three processes and the last that
/// overlap.
pub fn plans_that_just_break_a_rule()
    ensures lengths { ¬ IsValid uneven (uneven_plan (43 ∷ 56 ∷ 79 ∷ 99 ∷ []) (3 ∷ 4 ∷ 4 ∷ [])) }
    ensures order { ¬ IsValid uneven (record just_in_time { order = 0 ∷ 0 ∷ [] }) }
    ensures capacities { ¬ IsValid uneven (record (uneven_plan (43 ∷ 56 ∷ 87 ∷ 109 ∷ []) (3 ∷ 4 ∷ [])) { caps = 4 ∷ 1 ∷ [] }) }
    ensures released { ¬ IsValid uneven (uneven_plan (42 ∷ 56 ∷ 79 ∷ 99 ∷ []) (3 ∷ 4 ∷ [])) }
    ensures deadline { ¬ IsValid (uneven_on (uneven_cluster 4 7 500) 121) just_in_time }
    ensures horizon { ¬ IsValid (uneven_on (uneven_cluster 4 7 121) 200) just_in_time }
    ensures apart { ¬ IsValid uneven (uneven_plan (43 ∷ 56 ∷ 81 ∷ 99 ∷ []) (3 ∷ 4 ∷ [])) }
    ensures apart_from_last { ¬ IsValid three_alike (three_alike_plan (0 ∷ 4 ∷ 1 ∷ [])) }
    ensures linked { ¬ IsValid uneven (uneven_plan (43 ∷ 26 ∷ 79 ∷ 99 ∷ []) (3 ∷ 4 ∷ [])) }
    ensures ready { ¬ IsValid (uneven_on (uneven_cluster 5 7 500) 200) just_in_time }
    ensures arrived { ¬ IsValid uneven (uneven_plan (43 ∷ 56 ∷ 78 ∷ 99 ∷ []) (3 ∷ 4 ∷ [])) }
    ensures copied_in { ¬ IsValid (uneven_on (uneven_cluster 4 8 500) 200) just_in_time }
    ensures in_one_frame { ¬ IsValid uneven (uneven_plan (43 ∷ 56 ∷ 99 ∷ 118 ∷ []) (4 ∷ 4 ∷ [])) }
    ensures channels { ¬ IsValid uneven (record just_in_time { channels = 0 ∷ 0 ∷ 0 ∷ [] }) }
    ensures on_own { ¬ IsValid uneven (record just_in_time { channels = 0 ∷ 1 ∷ [] }) }
{}
