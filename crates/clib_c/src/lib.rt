// The library for C: each of clib's calls, with its promise, as a C function. include/recharge.h says them to C.
#![tactic(auto)]

ghost use Rattle.std.specs.Prelude.{◌≡◌, length};
ghost use Rattle.paper.specs.Day.{check_of};
ghost use Rattle.clib.specs.Numbers.{returned};
ghost use Rattle.clib.specs.Given.{setup_from, day_from};
ghost use Rattle.clib.specs.Handed.{stores_from, results_from, begun, fresh_gives, handed, day_gives, state_from};
ghost use Rattle.paper.specs.Radiation.{turc, jensen_haise, estimated_of};
ghost use Rattle.clib.specs.Estimates.{weather_from, estimate, estimate_given};
ghost use Rattle.grids.specs.Forms.{whole_form, inches_form, whole_verdict, inches_verdict};
ghost use Rattle.clib.specs.Grids.{header_from, GridRead, GridWritten};
ghost use Rattle.clib.specs.Texts.{Told};
ghost use Rattle.paper.specs.Reasons.{why_of};
ghost use Rattle.clib.specs.Whys.{explained, reason_given};

use clib::{DayNumbers, Site};

#[unsafe(no_mangle)]
pub extern "C" fn recharge_check(
    site: Site,
    covers: &[u32],
    direction: &[u32],
    cover: &[u32],
    group: &[u32],
    available: &[u32],
) -> u64
    ensures { result ≡ returned (check_of
        (setup_from site covers.now direction.now cover.now group.now available.now)) }
{
    clib::recharge_check(site, covers, direction, cover, group, available)
}

#[unsafe(no_mangle)]
pub extern "C" fn recharge_fresh(
    site: Site,
    covers: &[u32],
    direction: &[u32],
    cover: &[u32],
    group: &[u32],
    available: &[u32],
    soil: &mut [u32],
    snow: &mut [u32],
    memory: &mut [u32; 5],
    last_serial: &mut u32,
    frost_index: &mut u32,
) -> u64
    ensures { begun result (stores_from soil.new snow.new memory.new last_serial.new frost_index.new)
        ≡ fresh_gives (setup_from site covers.now direction.now cover.now group.now available.now)
        soil.old snow.old }
{
    clib::recharge_fresh(
        site,
        covers,
        direction,
        cover,
        group,
        available,
        soil,
        snow,
        memory,
        last_serial,
        frost_index,
    )
}

#[unsafe(no_mangle)]
pub extern "C" fn recharge_day(
    site: Site,
    covers: &[u32],
    direction: &[u32],
    cover: &[u32],
    group: &[u32],
    available: &[u32],
    soil: &mut [u32],
    snow: &mut [u32],
    memory: &mut [u32; 5],
    last_serial: &mut u32,
    frost_index: &mut u32,
    intercepted: &mut [u32],
    outflow: &mut [u32],
    evapotranspired: &mut [u32],
    recharged: &mut [u32],
    rejected: &mut [u32],
    totals: &mut [u64; 7],
    day: DayNumbers,
) -> u64
    ensures { handed result (stores_from soil.new snow.new memory.new last_serial.new frost_index.new)
        (results_from intercepted.new outflow.new evapotranspired.new recharged.new rejected.new)
        totals.new
        ≡ day_gives (setup_from site covers.now direction.now cover.now group.now available.now)
        (stores_from soil.old snow.old memory.old last_serial.old frost_index.old)
        (results_from intercepted.old outflow.old evapotranspired.old recharged.old rejected.old)
        (day_from day) }
{
    clib::recharge_day(
        site,
        covers,
        direction,
        cover,
        group,
        available,
        soil,
        snow,
        memory,
        last_serial,
        frost_index,
        intercepted,
        outflow,
        evapotranspired,
        recharged,
        rejected,
        totals,
        day,
    )
}

#[unsafe(no_mangle)]
pub extern "C" fn recharge_turc(
    mean: f64,
    radiation: f64,
    humidity: f64,
    potential: &mut u64,
) -> u64
    ensures { estimate result potential.new ≡ estimate_given (estimated_of (weather_from mean (turc radiation humidity))) }
{
    clib::recharge_turc(mean, radiation, humidity, potential)
}

#[unsafe(no_mangle)]
pub extern "C" fn recharge_jensen_haise(mean: f64, radiation: f64, potential: &mut u64) -> u64
    ensures { estimate result potential.new ≡ estimate_given (estimated_of (weather_from mean (jensen_haise radiation))) }
{
    clib::recharge_jensen_haise(mean, radiation, potential)
}

#[unsafe(no_mangle)]
pub extern "C" fn recharge_grid_read(
    text: &[u8],
    cells: &mut [i32],
    numbers: &mut [u32; 5],
    no_data: &mut i32,
    x_corner: &mut [u8; 20],
    y_corner: &mut [u8; 20],
    cell_size: &mut [u8; 20],
) -> u64
    ensures { GridRead text.now cells.old cells.new numbers.new no_data.new
        x_corner.new y_corner.new cell_size.new result }
{
    clib::recharge_grid_read(text, cells, numbers, no_data, x_corner, y_corner, cell_size)
}

#[unsafe(no_mangle)]
pub extern "C" fn recharge_grid_write(
    numbers: &[u32; 5],
    no_data: i32,
    x_corner: &[u8; 20],
    y_corner: &[u8; 20],
    cell_size: &[u8; 20],
    cells: &[i32],
    text: &mut [u8],
    written: &mut u64,
) -> u64
    ensures { GridWritten
        (whole_verdict (header_from numbers.now no_data x_corner.now y_corner.now cell_size.now) cells.now (length text.old))
        (whole_form (header_from numbers.now no_data x_corner.now y_corner.now cell_size.now) cells.now)
        text.old text.new written.new result }
{
    clib::recharge_grid_write(
        numbers, no_data, x_corner, y_corner, cell_size, cells, text, written,
    )
}

#[unsafe(no_mangle)]
pub extern "C" fn recharge_grid_inches(
    numbers: &[u32; 5],
    no_data: i32,
    x_corner: &[u8; 20],
    y_corner: &[u8; 20],
    cell_size: &[u8; 20],
    units: &[u64],
    text: &mut [u8],
    written: &mut u64,
) -> u64
    ensures { GridWritten
        (inches_verdict (header_from numbers.now no_data x_corner.now y_corner.now cell_size.now) units.now (length text.old))
        (inches_form (header_from numbers.now no_data x_corner.now y_corner.now cell_size.now) units.now)
        text.old text.new written.new result }
{
    clib::recharge_grid_inches(
        numbers, no_data, x_corner, y_corner, cell_size, units, text, written,
    )
}

#[unsafe(no_mangle)]
pub extern "C" fn recharge_text(input: &[u8], output: &mut [u8]) -> usize
    ensures { Told input.now output.old output.new result }
{
    clib::recharge_text(input, output)
}

#[unsafe(no_mangle)]
pub extern "C" fn recharge_why(
    site: Site,
    covers: &[u32],
    direction: &[u32],
    cover: &[u32],
    group: &[u32],
    available: &[u32],
    soil: &[u32],
    snow: &[u32],
    memory: &[u32; 5],
    last_serial: u32,
    frost_index: u32,
    day: DayNumbers,
    cell: u32,
    reason: &mut [u64; 3],
) -> u64
    ensures { explained result reason.new ≡ reason_given (why_of
        (setup_from site covers.now direction.now cover.now group.now available.now)
        (state_from (stores_from soil.now snow.now memory.now last_serial frost_index)) (day_from day) cell) }
{
    clib::recharge_why(
        site,
        covers,
        direction,
        cover,
        group,
        available,
        soil,
        snow,
        memory,
        last_serial,
        frost_index,
        day,
        cell,
        reason,
    )
}
