// Types and their numbers.

use crate::elementary::{
    declared_limits, has_value, is_counted, is_same_type, is_whole, is_within, is_within_any,
    limits,
};
use il_syntax::tree::{Elementary, Scalar, Subrange};
use std::test::Fail;

#[test]
fn numbers_of_types(rt: HostRuntime) -> Result<(), Fail> {
    let digits = Subrange { lower: 0, upper: 9 };
    let digit = Scalar {
        elementary: Elementary::Int,
        subrange: Some(digits),
    };
    assert!(rt; declared_limits(digit) == Some(digits));
    assert!(rt; limits(Elementary::Bool) == None && has_value(Elementary::Sint, -128));
    assert!(rt;
        !has_value(Elementary::Usint, 256)
            && is_within(digits, 9)
            && !is_within_any(Some(digits), 10)
            && !is_within_any(None, 7)
            && !has_value(Elementary::Bool, 7)
    );
    assert!(rt;
        is_whole(Elementary::Udint) && !is_whole(Elementary::Time) && is_counted(Elementary::Time)
    );
    assert!(rt;
        is_same_type(Elementary::Dint, Elementary::Dint)
            && !is_same_type(Elementary::Int, Elementary::Uint)
    );
    Ok(())
}
