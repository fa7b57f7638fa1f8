//! Whether rows are printed as these lines.
use logical_flows::flow::LFlow;
use logical_flows::print_flow::print_flow;
use ovn_base::list::List;
use ovn_base::memory::NoMemory;
use ovn_base::name::Name;
use std::alloc::Global;

/// Whether the rows have these lines on the datapath, in order.
pub fn have_lines(
    alloc: Global,
    datapath: &Name,
    rows: &[LFlow],
    lines: &[&str],
) -> Result<bool, NoMemory> {
    if rows.len() != lines.len() {
        return Ok(false);
    }
    let datapaths = List::from_slice(alloc, &[*datapath])?;
    for (row, line) in rows.iter().zip(lines) {
        let mut out = Vec::new(alloc);
        print_flow(row, datapaths.as_slice(), &mut out)?;
        if out.as_slice() != line.as_bytes() {
            return Ok(false);
        }
    }
    Ok(true)
}
