//! Whether it pays to find the ids around those of a type.
ghost use Rattle.std.specs.Prelude.{◌≡◌, true, Some};

/// For how many searches it is taken for granted that three quarters of the ids or more are around those of a type.
const GRANTED: u32 = 15;

/// The type for which the ids around it were found last, if they were three quarters of all ids or more, and for how many further
/// searches that is taken for granted. This decides which ids a search looks at, and so its time, and never its answer.
#[derive(Drop)]
pub(crate) struct Breadth {
    wide: Option<u16>,
    left: u32,
}

impl Breadth {
    /// Nothing is known yet.
    pub fn unknown() -> Breadth {
        Breadth {
            wide: None,
            left: 0,
        }
    }

    /// Whether it is taken for granted that three quarters of the ids or more are around those of the type.
    pub fn is_wide(&mut self, typ: u16) -> bool
        ensures { result ≡ true → (self.old).wide ≡ Some typ }
    {
        if self.wide != Some(typ) || self.left == 0 {
            return false;
        }
        self.left -= 1;
        true
    }

    /// Notes that `near` of `ids` ids are around those of the type. What was noted of another type is forgotten.
    pub fn note(&mut self, typ: u16, near: u32, ids: u32) {
        let is_most = u64::from(near) * 4 >= u64::from(ids) * 3;
        self.wide = if is_most { Some(typ) } else { None };
        self.left = GRANTED;
    }
}
