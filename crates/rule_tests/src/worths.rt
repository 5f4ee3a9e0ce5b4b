// The tallies' calls on edge values.
use tallies::measure::Measure;
use tallies::overdue::{Count, Overdue};
use tallies::shared::Shared;
use tallies::tally::Tally;
use tallies::verdict::Verdict;
use temporal::visits::Visit;

fn visit(node: usize, accepting: bool) -> Visit {
    Visit { node, accepting }
}

fn overdue(number: u32) -> Overdue {
    Some(Count::new(number))
}

// The set of one node, as the visit weighs.
fn only(node: usize) -> Shared {
    Shared::weight(visit(node, true))
}

fn sum(set: Shared) -> Option<u64> {
    set.map(|nodes| nodes.sum())
}

#[test]
fn verdicts_join_by_or_and_combine_by_and(rt: HostRuntime) {
    let rows = [
        (Verdict::No, Verdict::No, Verdict::No, Verdict::No),
        (Verdict::No, Verdict::Yes, Verdict::Yes, Verdict::No),
        (Verdict::Yes, Verdict::No, Verdict::Yes, Verdict::No),
        (Verdict::Yes, Verdict::Yes, Verdict::Yes, Verdict::Yes),
    ];
    for (x, y, joined, combined) in rows {
        assert_eq!(rt; x.join(y), joined);
        assert_eq!(rt; x.combine(y), combined);
    }
    assert_eq!(rt; Verdict::none(), Verdict::No);
    assert_eq!(rt; Verdict::unit(), Verdict::Yes);
    assert_eq!(rt; Verdict::weight(visit(0, false)), Verdict::Yes);
    assert_eq!(rt; Verdict::weight(visit(63, true)), Verdict::Yes);
}

#[test]
fn overdue_counts_rejecting_visits(rt: HostRuntime) {
    assert_eq!(rt; Overdue::none(), None);
    assert_eq!(rt; Overdue::unit(), overdue(0));
    assert_eq!(rt; Overdue::weight(visit(7, false)), overdue(1));
    assert_eq!(rt; Overdue::weight(visit(7, true)), overdue(0));
    assert_eq!(rt; overdue(2).join(overdue(3)), overdue(2));
    assert_eq!(rt; overdue(3).join(overdue(2)), overdue(2));
    assert_eq!(rt; overdue(2).combine(overdue(3)), overdue(5));
}

#[test]
fn overdue_stops_at_the_cap(rt: HostRuntime) {
    let cap = 4_294_967_295;
    assert_eq!(rt; overdue(cap - 1).combine(overdue(1)), overdue(cap));
    assert_eq!(rt; overdue(cap).combine(overdue(1)), overdue(cap));
    assert_eq!(rt; overdue(cap).combine(overdue(cap)), overdue(cap));
    assert_eq!(rt; overdue(cap).combine(overdue(0)), overdue(cap));
    assert_eq!(rt; overdue(cap - 2).combine(overdue(1)), overdue(cap - 1));
    assert_eq!(rt; overdue(cap).join(overdue(cap - 1)), overdue(cap - 1));
}

#[test]
fn none_joins_neutrally_and_combines_to_none(rt: HostRuntime) {
    for x in [None, overdue(0), overdue(4_294_967_295)] {
        assert_eq!(rt; Overdue::none().join(x), x);
        assert_eq!(rt; x.join(None), x);
        assert_eq!(rt; Overdue::none().combine(x), None);
        assert_eq!(rt; x.combine(None), None);
        assert_eq!(rt; Overdue::unit().combine(x), x);
        assert_eq!(rt; x.combine(Overdue::unit()), x);
    }
    for set in [None, Shared::unit(), only(0), only(63)] {
        assert_eq!(rt; Shared::none().join(set), set);
        assert_eq!(rt; set.join(None), set);
        assert_eq!(rt; Shared::none().combine(set), None);
        assert_eq!(rt; set.combine(None), None);
        assert_eq!(rt; Shared::unit().combine(set), set);
        assert_eq!(rt; set.combine(Shared::unit()), set);
    }
}

#[test]
fn shared_intersects_and_unites(rt: HostRuntime) {
    let low = only(0).combine(only(1));
    let high = only(1).combine(only(63));
    assert_eq!(rt; sum(low), Some(3));
    assert_eq!(rt; sum(high), Some(9_223_372_036_854_775_810));
    assert_eq!(rt; sum(low.join(high)), Some(2));
    assert_eq!(rt; sum(low.combine(high)), Some(9_223_372_036_854_775_811));
    assert_eq!(rt; sum(only(0).join(only(63))), Some(0));
}

#[test]
fn a_visit_weighs_its_own_node(rt: HostRuntime) {
    for node in [0, 1, 62, 63] {
        let set = Shared::weight(visit(node, false));
        for other in [0, 1, 62, 63, 64, usize::MAX] {
            assert_eq!(rt;
                set.is_some_and(|nodes| nodes.contains(other)),
                other == node
            );
        }
    }
    assert_eq!(rt; sum(only(62)), Some(4_611_686_018_427_387_904));
    assert_eq!(rt; sum(only(63)), Some(9_223_372_036_854_775_808));
    // A rule has at most 64 nodes, so there is no other visit.
    assert_eq!(rt; sum(only(64)), Some(0));
    assert_eq!(rt; sum(only(usize::MAX)), Some(0));
}
