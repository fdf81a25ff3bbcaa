//! The capabilities that requests may use (RFC 8620 sections 2 and 3.3).

/// The capability of JMAP Core (RFC 8620 section 2).
pub const CORE: &str = "urn:ietf:params:jmap:core";

/// The capability of calendars and events (draft JMAP for Calendars).
pub const CALENDARS: &str = "urn:ietf:params:jmap:calendars";

/// The capability of `Principal/getAvailability` (draft JMAP for Calendars).
pub const AVAILABILITY: &str = "urn:ietf:params:jmap:principals:availability";

/// The capability of `Resource/findSlot`, an extension of this server's own (RFC 8620 sections 1.8 and 9.4).
pub const SLOTS: &str = "https://jmapd.example/slots";

/// The capability of JMAP over WebSocket (RFC 8887 section 3). It has no methods.
pub const WEBSOCKET: &str = "urn:ietf:params:jmap:websocket";
