// What each operator acts as, and which are accepting.
use temporal::operators::{Binary, Form, Unary};

#[test]
fn operators_before_one_formula(rt: HostRuntime) {
    let rows = [
        (Unary::Next, false, Form::Next, false),
        (Unary::Next, true, Form::Next, true),
        (Unary::Always, false, Form::Always, true),
        (Unary::Always, true, Form::Eventually, false),
        (Unary::Eventually, false, Form::Eventually, false),
        (Unary::Eventually, true, Form::Always, true),
    ];
    for (operator, negative, form, accepting) in rows {
        assert_eq!(rt; operator.form(negative), form);
        assert_eq!(rt; operator.accepting(negative), accepting);
    }
}

#[test]
fn operators_between_two_formulas(rt: HostRuntime) {
    let rows = [
        (Binary::And, (Form::And, Form::Or), false, false),
        (Binary::Or, (Form::Or, Form::And), false, false),
        (Binary::Implies, (Form::Or, Form::And), true, false),
        (Binary::Until, (Form::Until, Form::Release), false, true),
        (Binary::Unless, (Form::Until, Form::Release), false, true),
    ];
    for (operator, (positive, negative), turns_left, waits) in rows {
        assert_eq!(rt; operator.form(false), positive);
        assert_eq!(rt; operator.form(true), negative);
        assert_eq!(rt; operator.left_negative(false), turns_left);
        assert_eq!(rt; operator.left_negative(true), !turns_left);
        assert_eq!(rt; operator.waits(), waits);
    }
    assert_eq!(rt; Binary::Until.accepting(false), false);
    assert_eq!(rt; Binary::Until.accepting(true), true);
    assert_eq!(rt; Binary::Unless.accepting(false), true);
    assert_eq!(rt; Binary::Unless.accepting(true), false);
}
