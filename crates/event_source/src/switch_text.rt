//! The switch that has a client told what it asks for.
ghost use Rattle.std.specs.Prelude.{◌≡◌, Some};
ghost use Rattle.spec_sockets.specs.Switches.{switch_in_text};
ghost use Rattle.spec_sockets.specs.declared.switch.Switch.TheVariants.{Enable};

use spec_push::data_types::DataTypes;

/// The text of the `WebSocketPushEnable` by which a socket is told changes of just these types (RFC 8887 section 4.3.5.2). Takes no memory.
pub fn switch_text(types: DataTypes) -> &'static str
    ensures { switch_in_text result.now ≡ Some (Enable types) }
{
    match (types.calendars, types.events) {
        (true, true) => "{\"@type\":\"WebSocketPushEnable\",\"dataTypes\":null}",
        (true, false) => "{\"@type\":\"WebSocketPushEnable\",\"dataTypes\":[\"Calendar\"]}",
        (false, true) => "{\"@type\":\"WebSocketPushEnable\",\"dataTypes\":[\"CalendarEvent\"]}",
        (false, false) => "{\"@type\":\"WebSocketPushEnable\",\"dataTypes\":[]}",
    }
}
