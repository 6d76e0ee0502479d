// The lines of a band that is done, as bytes: its leaves and the report.
ghost use Rattle.std.specs.Prelude.{◌+◌, ◌*◌, length};
ghost use Rattle.write_numbers.specs.Appends.{PutWithin};
ghost use Rattle.write_lines.specs.{BandLines.{band_lines}, Inside.{RoomFor}};

// The lines of a band that is done: its leaves and the report, from the front on.
pub fn put_band(
    curves: usize,
    leaves: usize,
    nodes: usize,
    records: &[i32],
    out: &mut [u8],
) -> usize
    requires { RoomFor leaves (length records.now) (length out.old) }
    ensures { PutWithin out.old 0 (231 * leaves + 70)
        (band_lines curves leaves nodes records.now) out.new result }
{
    let i = write_leaves::leaf_lines::put_leaves(records, leaves, out, 0);
    crate::render::put_done(out, i, curves, leaves, nodes)
}
