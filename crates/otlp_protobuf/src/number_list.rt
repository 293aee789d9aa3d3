//! The numbers of a field, where they are in a message.

ghost use Rattle.std.specs.Prelude.{◌≡◌, ◌++◌, []};
ghost use Rattle.std.specs.Option.{ForSome};
ghost use Rattle.otlp_protobuf.specs.Wire.{fields};
ghost use Rattle.otlp_protobuf.specs.Fields.{numbers, packed};
ghost use Rattle.otlp_protobuf.specs.inner.SpotViews.{IsSpot};

/// The numbers of 8 bytes of one field: the message, and which of its fields they are.
#[derive(Clone, Copy)]
pub struct NumberList<'a> {
    pub bytes: &'a [u8],
    pub number: u32,
    /// They, packed, if one field has them all.
    pub spot: Option<&'a [u8]>,
    ghost are_found: { ForSome spot (λ p.
        packed p.now ++ [] ≡ numbers number (fields bytes.now)) },
}

impl<'a> NumberList<'a> {
    /// Those of the field of this number, with where one field has them all.
    #[inline(always)]
    pub fn of(bytes: &'a [u8], number: u32, spot: Option<&'a [u8]>) -> NumberList<'a>
        requires { IsSpot spot [] (numbers number (fields bytes.now)) }
        ensures { numbers result.number (fields result.bytes.now)
            ≡ numbers number (fields bytes.now) }
    {
        match spot {
            Some(packed) => NumberList {
                bytes,
                number,
                spot: Some(packed),
            },
            None => NumberList {
                bytes,
                number,
                spot: None,
            },
        }
    }
}
