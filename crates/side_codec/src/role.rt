//! What a history does, and that as bytes.
ghost use Rattle.std.specs.Prelude.{◌≡◌, ◌++◌, Ok, Err, IfOk, IfErr, OnOk, IsOkUnless};
ghost use Rattle.field_codec.specs.Lists.{IsRefusal};
ghost use Rattle.side_codec.specs.Roles.{read_role, role_bytes, IsRole};

use field_codec::{FieldFault, Reader, Writer};

/// What a history does.
#[derive(Clone, Copy, Debug, PartialEq, Eq)]
pub enum SideRole {
    /// Nothing yet.
    Undecided,
    /// It has collected beats.
    Collects,
    /// It has copied beats or gaps, the last of them of the child with this id.
    Copies(u64),
}

#[tactic(auto, unfolding(crate::specs::Roles::role_bytes))]
pub(crate) fn put(role: SideRole, writer: &mut Writer) -> Result<(), FieldFault>
    ensures put { OnOk result (writer.new ≡ writer.old ++ role_bytes role) }
    ensures role { OnOk result (IsRole role) }
    ensures memory { IsOkUnless result FieldFault.Memory }
{
    let (number, child) = match role {
        SideRole::Undecided => (0, 0),
        SideRole::Collects => (1, 0),
        SideRole::Copies(child) => (2, child),
    };
    writer.put_u8(number)?;
    writer.put_u64(child)
}

#[tactic(auto, unfolding(crate::specs::Roles::read_role))]
pub(crate) fn take(reader: &mut Reader<'_>) -> Result<SideRole, FieldFault>
    ensures taken { IfOk result (λ role. read_role reader.old ≡ Ok (role, reader.new)) }
    ensures fault { IfErr result (IsRefusal (read_role reader.old)) }
{
    let number = reader.take_u8()?;
    let child = reader.take_u64()?;
    match (number, child) {
        (0, 0) => Ok(SideRole::Undecided),
        (1, 0) => Ok(SideRole::Collects),
        (2, _) => Ok(SideRole::Copies(child)),
        _ => Err(FieldFault::Range),
    }
}
