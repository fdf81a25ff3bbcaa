//! The time zones of the table.
use spec_json::text::Text;
use std::alloc::{AllocError, Global};
use zone_table::{ZoneError, Zones};

/// The time zones of the table.
pub fn zones(alloc: Global) -> Result<Zones, AllocError> {
    let listed = vec![in alloc;
        zone(alloc, "America/New_York", "EST5EDT,M3.2.0,M11.1.0")?,
        zone(alloc, "Asia/Kolkata", "IST-5:30")?,
    ]?;
    match Zones::read(alloc, &listed) {
        Ok(zones) => Ok(zones),
        Err(ZoneError::BadZone { .. } | ZoneError::NoMemory) => Err(AllocError),
    }
}

fn zone(alloc: Global, name: &str, rule: &str) -> Result<(Text, Text), AllocError> {
    Ok((Text::from_str(alloc, name)?, Text::from_str(alloc, rule)?))
}
