// Conditions that are read, compared, bound and valued.
ghost use Rattle.std.specs.Prelude.{◌≡◌, ◌==◌, IfOk, Some, None, is_none, if◌then◌else◌, length};
ghost use Rattle.cond_expr.specs.Values.{AreBelow};

use cond_expr::{
    BindFault, Bound, CondFault, Conditions, Expr, Find, Nets, Op, Tok, first_fault, owned,
};
use grammar::{
    begins_alone, one_failing_token, one_tree, prefix_closed, reads_its_language,
    spelled_or_failing,
};
use sg_logic::Value;
use sg_text::Text;
use std::alloc::Global;
use std::test::Fail;

const A: &[u8] = b"a";

const B: &[u8] = b"b";

const LONG: &[u8] = b"long";

#[test]
fn laws_of_conditions(_rt: HostRuntime) {
    reads_its_language::<Conditions<64>>();
    one_tree::<Conditions<64>>();
    spelled_or_failing::<Conditions<64>>();
    one_failing_token::<Conditions<64>>();
    prefix_closed::<Conditions<64>>();
    begins_alone::<Conditions<64>>();
}

#[test]
fn a_condition_has_its_tokens(rt: HostRuntime) -> Result<(), Fail> {
    let alloc = rt.alloc();
    let enclosed = [
        Tok::Left,
        Tok::Name(A),
        Tok::Index(3),
        Tok::Op(Op::Equal),
        Tok::Const(Value::One),
        Tok::Right,
    ];
    let tokens = owned(alloc, &enclosed)?;
    let condition = Expr::read(alloc, &tokens)?;
    assert!(rt; condition.tokens() == tokens.as_slice());
    let bare = [
        Tok::Name(A),
        Tok::Index(3),
        Tok::Op(Op::Equal),
        Tok::Const(Value::One),
    ];
    let bare = owned(alloc, &bare)?;
    assert!(rt; condition.same(&bare));
    let other = owned(alloc, &[Tok::Name(B)])?;
    assert!(rt; !condition.same(&other));
    Ok(())
}

#[test]
fn a_token_fails(rt: HostRuntime) -> Result<(), Fail> {
    let tokens = owned(rt.alloc(), &[Tok::Name(A), Tok::Op(Op::And)])?;
    assert_eq!(rt; first_fault(&tokens), Some(2));
    assert_eq!(rt;
        Expr::read(rt.alloc(), &tokens).err(),
        Some(CondFault::Syntax { at: 2 })
    );
    assert_eq!(rt;
        Expr::read(rt.alloc(), &[]).err(),
        Some(CondFault::Syntax { at: 0 })
    );
    Ok(())
}

// A name in so many pairs of parentheses.
fn nested(alloc: Global, pairs: usize) -> Result<Vec<Tok<Text>>, CondFault> {
    let mut tokens = Vec::new(alloc);
    for _ in 0..pairs {
        tokens.push(Tok::Left)?;
    }
    tokens.push(Tok::Name(Text::copy(alloc, b"a")?))?;
    for _ in 0..pairs {
        tokens.push(Tok::Right)?;
    }
    Ok(tokens)
}

#[test]
fn conditions_nest_64_deep(rt: HostRuntime) -> Result<(), Fail> {
    let deep = nested(rt.alloc(), 64)?;
    assert!(rt; Expr::read(rt.alloc(), &deep).is_ok());
    let deeper = nested(rt.alloc(), 65)?;
    assert_eq!(rt; first_fault(&deeper), None);
    assert_eq!(rt;
        Expr::read(rt.alloc(), &deeper).err(),
        Some(CondFault::TooDeep)
    );
    Ok(())
}

#[derive(Drop)]
struct Known<'a>(&'a [Value]);

impl<'a> Nets for Known<'a> {
    ghost values = { λ s. s.0.now };

    fn at(&self, net: u32) -> Value {
        self.0[net as usize]
    }
}

// Knows the names of one byte: net 0 is found by such a name alone, net 1 by one with an index.
#[derive(Drop)]
struct Short;

impl Find for Short {
    ghost found = { λ _ name index. if length name == 1 then Some (if is_none index then 0 else 1) else None };

    fn find(&self, name: &Text, index: Option<i64>) -> Option<u32> {
        if name.bytes().len() != 1 {
            return None;
        }
        Some(if index.is_none() { 0 } else { 1 })
    }
}

// The condition that the tokens spell, over the two nets.
fn bound(alloc: Global, tokens: &[Tok<&[u8]>]) -> Result<Bound, BindFault>
    ensures { IfOk result (AreBelow 2) }
{
    let Ok(tokens) = owned(alloc, tokens) else {
        return Err(BindFault::NoMemory);
    };
    match Expr::read(alloc, &tokens) {
        Ok(condition) => condition.bind(alloc, &Short),
        Err(_) => Err(BindFault::NoMemory),
    }
}

#[test]
fn operands_are_bound(rt: HostRuntime) -> Result<(), Fail> {
    let known = [
        Tok::Name(A),
        Tok::Op(Op::Equal),
        Tok::Name(B),
        Tok::Index(3),
    ];
    let condition = bound(rt.alloc(), &known)?;
    assert_eq!(rt;
        condition.value(&Known(&[Value::Zero, Value::One])),
        Value::Zero
    );
    let unknown = [
        Tok::Name(A),
        Tok::Op(Op::Equal),
        Tok::Name(LONG),
        Tok::Index(3),
    ];
    assert_eq!(rt;
        bound(rt.alloc(), &unknown).err(),
        Some(BindFault::Unknown { at: 2 })
    );
    Ok(())
}

#[test]
fn a_path_and_a_check_at_x(rt: HostRuntime) -> Result<(), Fail> {
    let nets = Known(&[Value::X, Value::One]);
    let name = bound(rt.alloc(), &[Tok::Name(A)])?;
    assert!(rt; name.holds(&nets));
    assert!(rt; !name.enables(&nets));
    let one = [Tok::Name(A), Tok::Op(Op::Equal), Tok::Const(Value::One)];
    let one = bound(rt.alloc(), &one)?;
    assert!(rt; one.enables(&nets));
    Ok(())
}
