//! The values of a JSON text, on a tape. Contracts see the tokens from a value on, and by `data_at`
//! what `serde_json` makes of it.

ghost use Rattle.std.specs.Prelude.{◌≡◌, ◌∷◌, ◌<◌, [], List, length, option_map, is_some, is_none};
ghost use Rattle.std.specs.Prelude.{IfSome, OnSome, MatchOption, Some, None, false, if◌then◌else◌};
ghost use Rattle.serde_json.specs.Data.{Data, Members as Entries, Num, no_members, number, object};
ghost use Rattle.serde_json.specs.Data.{put};
ghost use Rattle.serde_json.specs.Read.{number_of};
ghost use Rattle.serde_json.specs.Find.{get, as_str, as_bool, as_array, as_number};
ghost use Rattle.otlp_read.specs.Containers.{is_object, elements};
ghost use Rattle.otlp_read.specs.Fields.{present};
ghost use Rattle.json_points.specs.inner.Nodes.{IsNode, AreItems, AreMembers, data_at};

use json::{Element, Items, Members};
use std::marker::Model;

/// A value of a text that `serde_json` reads.
#[derive(Drop)]
pub struct Node<'t, 'a> {
    element: Element<'t, 'a>,
}

impl<'t, 'a> Model for Node<'t, 'a> {
    ghost use Rattle.std.specs.Prelude.{List};
    ghost use Rattle.json.specs.Token.{Token, tokens_code};
    ghost use Rattle.json_points.specs.inner.Nodes.{IsNode};

    ghost Value = { List Token };

    ghost coded = { tokens_code };

    ghost view = { λ n. n.element };

    ghost invariant = { λ n. IsNode n.element };
}

impl<'t, 'a> Node<'t, 'a> {
    /// The value that begins at an element.
    pub fn of(element: Element<'t, 'a>) -> Node<'t, 'a>
        requires { IsNode element }
        ensures { result ≡ element.entry }
    {
        Node { element }
    }

    /// The text, if the value is one.
    pub fn as_str(&self) -> Option<&'a str>
        ensures { option_map (λ s. s.now) result ≡ as_str (data_at self.now) }
    {
        self.element.as_str()
    }

    /// The text of a number, if the value is one.
    pub fn as_number(&self) -> Option<&'a str>
        ensures found { IfSome result (λ s. (n : Num) × (number_of s.now ≡ Some n)
            × (data_at self.now ≡ number n)) }
        ensures none { result ≡ None → as_number (data_at self.now) ≡ None }
    {
        self.element.as_number()
    }

    /// The truth value, if the value is one.
    pub fn as_bool(&self) -> Option<bool>
        ensures { result ≡ as_bool (data_at self.now) }
    {
        self.element.as_bool()
    }

    /// The value, unless it is `null`.
    pub fn present(self) -> Option<Node<'t, 'a>>
        ensures { option_map data_at result ≡ present (Some (data_at self.entry)) }
    {
        if self.element.is_null() {
            None
        } else {
            Some(self)
        }
    }

    /// Whether the value is an object.
    pub fn is_object(&self) -> bool
        ensures { result ≡ is_object (data_at self.now) }
    {
        match self.element.members() {
            Some(_) => true,
            None => false,
        }
    }

    /// The last member of this name.
    pub fn get(&self, name: &str) -> Option<Node<'t, 'a>>
        ensures { option_map data_at result ≡ get name.now (data_at self.now) }
    {
        match self.element.get(name) {
            Some(element) => Some(Node { element }),
            None => None,
        }
    }

    /// The items, if the value is an array.
    pub fn items(&self) -> Option<Nodes<'t, 'a>>
        ensures found { IfSome result (λ ns. (ds : List Data)
            × (option_map elements (as_array (data_at self.now)) ≡ Some ds) × AreItems ns ds) }
        ensures none { result ≡ None → as_array (data_at self.now) ≡ None }
    {
        match self.element.items() {
            Some(items) => Some(Nodes { items }),
            None => None,
        }
    }

    /// The members, if the value is an object.
    pub fn fields(&self) -> Option<Fields<'t, 'a>>
        ensures found { IfSome result (λ fs. AreMembers fs no_members (data_at self.now)) }
        ensures none { result ≡ None → is_object (data_at self.now) ≡ false }
    {
        match self.element.members() {
            Some(members) => Some(Fields { members }),
            None => None,
        }
    }
}

/// The items of an array that are still to come. Contracts see the tokens from there on.
#[derive(Drop)]
pub struct Nodes<'t, 'a> {
    items: Items<'t, 'a>,
}

impl<'t, 'a> Model for Nodes<'t, 'a> {
    ghost use Rattle.std.specs.Prelude.{List};
    ghost use Rattle.json.specs.Token.{Token, tokens_code};
    ghost use Rattle.json_points.specs.inner.Nodes.{HasItems};

    ghost Value = { List Token };

    ghost coded = { tokens_code };

    ghost view = { λ n. n.items };

    ghost invariant = { λ n. HasItems n.items };
}

impl<'t, 'a> Nodes<'t, 'a> {
    /// The next item.
    pub fn next(&mut self) -> Option<Node<'t, 'a>>
        ensures value { (ds : List Data) → AreItems self.old ds → MatchOption result (ds ≡ [])
            (λ n. (rest : List Data) × (ds ≡ data_at n ∷ rest) × AreItems self.new rest) }
        ensures shorter { OnSome result (length self.new < length self.old) }
    {
        let element = self.items.next()?;
        Some(Node { element })
    }
}

/// The members of an object that are still to come. Contracts see the tokens from there on.
#[derive(Drop)]
pub struct Fields<'t, 'a> {
    members: Members<'t, 'a>,
}

impl<'t, 'a> Model for Fields<'t, 'a> {
    ghost use Rattle.std.specs.Prelude.{List};
    ghost use Rattle.json.specs.Token.{Token, tokens_code};
    ghost use Rattle.json_points.specs.inner.Nodes.{HasMembers};

    ghost Value = { List Token };

    ghost coded = { tokens_code };

    ghost view = { λ f. f.members };

    ghost invariant = { λ f. HasMembers f.members };
}

impl<'t, 'a> Fields<'t, 'a> {
    /// The next member: its name and its value.
    pub fn next(&mut self) -> Option<(&'a str, Node<'t, 'a>)>
        ensures value { (before : Entries) → (d : Data) → AreMembers self.old before d
            → MatchOption result (d ≡ object before)
            (λ m. AreMembers self.new (put m.0.now (data_at m.1) before) d) }
        ensures shorter { OnSome result (length self.new < length self.old) }
    {
        match self.members.next() {
            Some((name, element)) => Some((name, Node { element })),
            None => None,
        }
    }
}
