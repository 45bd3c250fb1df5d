//! The words that scripts and calls are made of.

/// Names of the spans that stand for requests.
pub const REQUESTS: [&str; 8] = [
    "request", "login", "checkout", "search", "upload", "report", "health", "sync-job",
];

/// Names of the spans inside them.
pub const STEPS: [&str; 8] = [
    "db.query",
    "cache.look-up",
    "render",
    "db.commit",
    "authorize",
    "encode",
    "fetch_user",
    "retry",
];

/// Targets.
pub const TARGETS: [&str; 8] = [
    "app",
    "app::http",
    "app::db",
    "app::db::pool",
    "app::cache",
    "lib",
    "lib::tls",
    "other",
];

/// Levels, as scripts write them; the middle ones are met more often.
pub const LEVELS: [&str; 8] = [
    "INFO", "INFO", "INFO", "DEBUG", "DEBUG", "WARN", "TRACE", "ERROR",
];

/// Keys of fields.
pub const KEYS: [&str; 8] = [
    "user", "path", "method", "status", "rows", "took_us", "peer", "note",
];

/// The beginnings of values, as JSON strings have them.
pub const VALUES: [&str; 8] = [
    "ada-",
    "/items/",
    "GET /a?q=\\\"x\\\"&n=",
    "20",
    "",
    "C:\\\\logs\\\\",
    "10.0.0.",
    "grüße\\n",
];

/// The beginnings of messages, as JSON strings have them.
pub const MESSAGES: [&str; 8] = [
    "the cache is cold after ",
    "connection taken from the pool, ",
    "row not found: ",
    "slow query, us ",
    "retry number ",
    "sent \\\"200 OK\\\", bytes ",
    "queue length ",
    "done\\tin ",
];
