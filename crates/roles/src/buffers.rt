// The buffers that a call fills, and the image that fills them.
ghost use Rattle.std.specs.Prelude.{◌≡◌, length};
ghost use Rattle.std.proofs.Math.Option.{none};
ghost use Rattle.roles_spec.specs.Refusals.{roles_refusal};
ghost use Rattle.roles.specs.Bounds.{AcceptedFor};
ghost use Rattle.roles.specs.BindingSteps.{RoomForAllOrNone};

// An accepted image, and the buffers for its roles and its bindings. The bindings buffer has room for all records or for none.
#[derive(Drop)]
pub(crate) struct Filling<'a> {
    pub roles: &'a mut [u8],
    pub bindings: &'a mut [u8],
    pub table: &'a [u8],
    pub words: &'a [u8],
    ghost accepted: { AcceptedFor table.now words.now roles.now },
    ghost room: { RoomForAllOrNone table.now (length bindings.now) },
}
