// The three waiting rules, the table of classes, and chains of waits.
use waiting::*;

#[test]
fn numbers_above_three_are_no_class(rt: HostRuntime) {
    assert_eq!(rt; Class::try_from(3), Ok(Class::Three));
    assert_eq!(rt; Class::try_from(4), Err(NoSuchClass));
    assert_eq!(rt; u32::from(Class::Two), 2);
}

#[test]
fn never_says_no(rt: HostRuntime) {
    assert!(rt; !Never.may_wait(&Party::new(Class::Three, 1), &Party::new(Class::Zero, 2)));
}

#[test]
fn elder_goes_by_ticket(rt: HostRuntime) {
    let early = Party::new(Class::Zero, 1);
    let late = Party::new(Class::Three, 2);
    assert!(rt; Elder.may_wait(&early, &late));
    assert!(rt; !Elder.may_wait(&late, &early));
    assert!(rt; !Elder.may_wait(&early, &early));
}

#[test]
fn table_says_who_waits(rt: HostRuntime) {
    assert_eq!(rt; decision_of(Class::Three, Class::Two), Decision::Yes);
    assert_eq!(rt; decision_of(Class::Two, Class::Three), Decision::No);
    assert_eq!(rt; decision_of(Class::One, Class::Two), Decision::No);
    assert_eq!(rt; decision_of(Class::Two, Class::Two), Decision::Elder);
}

#[test]
fn classes_go_by_the_table(rt: HostRuntime) {
    let zero = Party::new(Class::Zero, 1);
    let two = Party::new(Class::Two, 2);
    let later_two = Party::new(Class::Two, 3);
    assert!(rt; Classes.may_wait(&two, &zero));
    assert!(rt; !Classes.may_wait(&zero, &two));
    assert!(rt; Classes.may_wait(&two, &later_two));
    assert!(rt; !Classes.may_wait(&later_two, &two));
}

#[test]
fn chains_do_not_come_back(rt: HostRuntime) {
    let early = Party::new(Class::One, 1);
    let late = Party::new(Class::One, 2);
    assert!(rt; is_chain_of_waits(&Elder, &early, &[late]));
    assert!(rt; !is_chain_of_waits(&Elder, &early, &[late, early]));
}
