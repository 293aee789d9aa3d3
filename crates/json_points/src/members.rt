//! Objects of one member or two, as most are that a point has.

ghost use Rattle.std.specs.Prelude.{◌≡◌, IfSome};
ghost use Rattle.serde_json.specs.Data.{no_members, object, put};
ghost use Rattle.json_points.specs.inner.Nodes.{data_at};

use crate::node::Node;

/// A member of an object: its name and its value.
#[derive(Drop)]
pub struct Member<'t, 'a> {
    pub name: &'a str,
    pub value: Node<'t, 'a>,
}

/// Two members of an object.
#[derive(Drop)]
pub struct Pair<'t, 'a> {
    pub first: Member<'t, 'a>,
    pub second: Member<'t, 'a>,
}

/// The only member of an object; `None` if it has more or less of them.
pub fn only_member<'t, 'a>(node: &Node<'t, 'a>) -> Option<Member<'t, 'a>>
    ensures { IfSome result (λ m.
        data_at node.now ≡ object (put m.name.now (data_at m.value) no_members)) }
{
    let Some(mut fields) = node.fields() else {
        return None;
    };
    let Some((name, value)) = fields.next() else {
        return None;
    };
    match fields.next() {
        None => Some(Member { name, value }),
        Some(_) => None,
    }
}

/// The two members of an object; `None` if it has more or less of them.
pub fn two_members<'t, 'a>(node: &Node<'t, 'a>) -> Option<Pair<'t, 'a>>
    ensures { IfSome result (λ p. data_at node.now ≡ object (put p.second.name.now
        (data_at p.second.value) (put p.first.name.now (data_at p.first.value) no_members))) }
{
    let Some(mut fields) = node.fields() else {
        return None;
    };
    let Some((first, one)) = fields.next() else {
        return None;
    };
    let Some((second, other)) = fields.next() else {
        return None;
    };
    if fields.next().is_some() {
        return None;
    }
    Some(Pair {
        first: Member {
            name: first,
            value: one,
        },
        second: Member {
            name: second,
            value: other,
        },
    })
}
