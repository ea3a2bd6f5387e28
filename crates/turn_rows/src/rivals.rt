// Hart 1 beside the port of hart 0: it stores right before an exchange.
ghost use Rattle.std.specs.Prelude.{◌≡◌};
ghost use Rattle.guest_ram.specs.Shown.{pass_shown};
ghost use Rattle.access_rows.specs.Ready.{IsRival};

use crate::ports::{Aside, Seated};
use access_rows::strike;
use guest_ram::Pass;
use std::marker::PhantomData;

/// The pass of hart 1, which stores a value in the word of RAM at 0x80020000 right before so many exchanges of it.
#[derive(Drop)]
pub(crate) struct Rival<'t, J: Seated> {
    pub pass: Pass<'t>,
    pub value: u64,
    pub left: u8,
    pub beside: PhantomData<J>,
    ghost ready: { IsRival (pass_shown pass) },
    ghost machine: { (pass_shown pass).machine ≡ J.machine },
}

impl<'t, J: Seated> Aside for Rival<'t, J> {
    fn before_exchange(&mut self, word: u32) {
        strike(&mut self.pass, word, self.value, &mut self.left);
    }
}
