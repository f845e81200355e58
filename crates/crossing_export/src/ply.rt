ghost use Rattle.std.specs.Prelude.{◌≡◌, ◌++◌, ◌∷◌, [], IfOk, OnOk, OnErr};
ghost use Rattle.std.specs.Fmt.{signed_decimal};
ghost use Rattle.crossing_export.specs.Ply.{ply_head, ply_text as ply_text_of, point_line};
ghost use Rattle.crossing_export.specs.Steps.{IsGrown};

use crate::crossing::Crossing;
use itoa::Buffer;
use std::alloc::{AllocError, Global};
use voxel_block::NoMemory;

/// The file of a list of points: PLY in ASCII, version 1.0 (Turk 1994), with a vertex for each point, in micrometres.
pub fn ply_text(alloc: Global, list: &[Crossing]) -> Result<Vec<u8>, NoMemory>
    ensures { IfOk result (λ v. v.items ≡ ply_text_of list.now) }
{
    let mut bytes = Vec::new(alloc);
    match append_ply(&mut bytes, list) {
        Ok(()) => Ok(bytes),
        Err(_) => Err(NoMemory),
    }
}

/// Appends the file of a list of points, as `ply_text` gives it. Out of memory leaves `bytes` as it was.
pub fn append_ply(bytes: &mut Vec<u8>, list: &[Crossing]) -> Result<(), AllocError>
    ensures appended { OnOk result (bytes.new.items ≡ bytes.old.items ++ ply_text_of list.now) }
    ensures unchanged { OnErr result (bytes.new.items ≡ bytes.old.items) }
{
    let len = bytes.len();
    match write_ply(bytes, list) {
        Ok(()) => Ok(()),
        Err(error) => {
            bytes.truncate(len);
            Err(error)
        }
    }
}

/// Writes the file of a list of points.
fn write_ply(bytes: &mut Vec<u8>, list: &[Crossing]) -> Result<(), AllocError>
    ensures written { OnOk result (bytes.new.items ≡ bytes.old.items ++ ply_text_of list.now) }
    ensures grown { IsGrown bytes.old.items bytes.new.items }
{
    write_head(bytes, list.len())?;
    for point in list {
        write_point(bytes, point)?;
    }
    Ok(())
}

/// Writes the header of a list of `count` points.
fn write_head(bytes: &mut Vec<u8>, count: usize) -> Result<(), AllocError>
    ensures written { OnOk result (bytes.new.items ≡ bytes.old.items ++ ply_head count) }
    ensures grown { IsGrown bytes.old.items bytes.new.items }
{
    bytes.extend_from_slice(b"ply\nformat ascii 1.0\nelement vertex ")?;
    bytes.extend_from_slice(Buffer::new().format(count).as_bytes())?;
    bytes.extend_from_slice(b"\nproperty int x\nproperty int y\nproperty int z\nend_header\n")?;
    Ok(())
}

/// Writes the line of a point.
fn write_point(bytes: &mut Vec<u8>, point: &Crossing) -> Result<(), AllocError>
    ensures written { OnOk result (bytes.new.items ≡ bytes.old.items ++ point_line point.now) }
    ensures grown { IsGrown bytes.old.items bytes.new.items }
{
    write_number(bytes, point.x, b' ')?;
    write_number(bytes, point.y, b' ')?;
    write_number(bytes, point.z, b'\n')
}

/// Writes a number, and the byte after it.
fn write_number(bytes: &mut Vec<u8>, number: i32, end: u8) -> Result<(), AllocError>
    ensures written { OnOk result (bytes.new.items ≡ bytes.old.items ++ signed_decimal number ++ end ∷ []) }
    ensures grown { IsGrown bytes.old.items bytes.new.items }
{
    bytes.extend_from_slice(Buffer::new().format(number).as_bytes())?;
    bytes.push(end)?;
    Ok(())
}
