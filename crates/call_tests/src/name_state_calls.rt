use name_states::{Holder, laws};

// The laws hold for any contents; here they are had for one type of them.
#[test]
fn laws_of_names_are_had_at_a_type_of_contents(rt: HostRuntime) {
    laws::without_contents::<u64>();
    laws::rules::<u64>();
    laws::sweeping::<u64>();
    assert_eq!(rt; Holder::Body(3), Holder::Body(3));
}
