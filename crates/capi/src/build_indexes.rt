ghost use Rattle.std.specs.Prelude.{◌≡◌};
ghost use Rattle.outline_build.specs.Indexes.{indexes_built};
ghost use Rattle.capi.specs.Indexes.{options_of, indexed_all};

use crate::told::tell_count;
use outline_build::build_indexes;
use outline_index::BuildOptions;

fn options_of(options: u32, threshold: usize) -> BuildOptions
    ensures { result ≡ options_of options threshold }
{
    BuildOptions {
        enable_y_stripes: options % 2 == 1,
        enable_compressed_quad: options / 2 % 2 == 1,
        min_segments: threshold,
    }
}

// Builds the indexes of all rings of an outline.
#[unsafe(no_mangle)]
pub extern "C" fn brothstitch_build(
    sizes: &[u32],
    coords: &[i32],
    options: u32,
    threshold: usize,
    table: &mut [u64],
    spans: &mut [f64],
    stripes: &mut [u32],
    list: &mut [u32],
    bytes: &mut [u8],
    work: &mut [u32],
    value: &mut u64,
) -> u32
    ensures { indexed_all (indexes_built sizes.now coords.now (options_of options threshold) table.old spans.old stripes.old list.old bytes.old work.old) ≡ ((result, value.new), table.new, spans.new, stripes.new, list.new, bytes.new, work.new) }
{
    let asked = options_of(options, threshold);
    let answer = build_indexes(
        sizes, coords, asked, table, spans, stripes, list, bytes, work,
    );
    tell_count(answer, value)
}
