//! The page itself: one client of it, over any reader and writer.
use crate::{DeviceMap, StatusReport};
use bytes::{BufMut, Bytes};
use http::{HeaderValue, Method, Request, StatusCode, header};
use http_server::{Config, Connection, Response, Service, serve};
use std::alloc::{AllocError, Global};
use std::hash::RandomState;
use std::io;
use std::io::{Read, Write};

/// The text for a client when there is no report.
const NO_REPORT: &str =
    "no report within two seconds: the images are compared, a session gives way to the next, or a disk does not answer\n";

/// The text for a client that asks for another page.
const NO_SUCH_PAGE: &str =
    "there is no such page: this server has /, /status.json, /map.json and /metrics\n";

/// The text for a client when the map cannot be read.
const NO_MAP: &str = "the metadata file could not be read\n";

/// Gives reports.
pub trait ReportSource {
    /// Returns a report of this moment, or `None` if there is none now.
    fn report(&self) -> Option<StatusReport>;

    /// Returns the name of the server, if it has one.
    fn name(&self) -> Option<&str>;

    /// Returns a map of the device, as its metadata has it now, or an error if that cannot be read. `None` if no metadata is kept.
    fn map(&self) -> Option<io::Result<DeviceMap>>;
}

/// The page that a client gets, with a report from this source.
#[derive(Drop)]
struct Page<S: Drop> {
    alloc: Global,
    source: S,
}

impl<S: ReportSource + Drop> Service for Page<S> {
    ghost answers = { λ old request response new. Unit {0} };

    fn call(
        &mut self,
        request: &Request<Bytes>,
        response: &mut Response,
    ) -> Result<(), AllocError> {
        response.add_header(header::CONNECTION, HeaderValue::from_static("close"))?;
        response.add_header(header::CACHE_CONTROL, HeaderValue::from_static("no-store"))?;
        if *request.method() != Method::GET && *request.method() != Method::HEAD {
            response.status = StatusCode::METHOD_NOT_ALLOWED;
            return response.add_header(header::ALLOW, HeaderValue::from_static("GET, HEAD"));
        }
        match request.uri().path() {
            "/" if is_browser(request) => self.fill(response, Form::Document),
            "/" => self.fill(response, Form::Lines),
            "/status.json" => self.fill(response, Form::Json),
            "/metrics" => self.fill(response, Form::Metrics),
            "/map.json" => self.fill_map(response),
            _ => {
                response.status = StatusCode::NOT_FOUND;
                fill_text(response, NO_SUCH_PAGE)
            }
        }
    }
}

// Returns whether a client takes a document of HTML, as browsers do.
fn is_browser(request: &Request<Bytes>) -> bool {
    let Some(accepted) = request.headers().get(header::ACCEPT) else {
        return false;
    };
    match accepted.to_str() {
        Ok(kinds) => kinds.contains("text/html"),
        Err(_) => false,
    }
}

/// How a report is written.
#[derive(Clone, Copy)]
enum Form {
    Lines,
    Json,
    Metrics,
    Document,
}

impl<S: ReportSource + Drop> Page<S> {
    // Gives a response a report of this moment, or says that there is none.
    fn fill(&self, response: &mut Response, form: Form) -> Result<(), AllocError> {
        let Some(report) = self.source.report() else {
            response.status = StatusCode::SERVICE_UNAVAILABLE;
            return fill_text(response, NO_REPORT);
        };
        match form {
            Form::Lines => fill_text(response, &report.text(self.alloc)?),
            Form::Json => {
                let json = report.json(self.alloc)?;
                fill(
                    response,
                    HeaderValue::from_static("application/json"),
                    &json,
                )
            }
            Form::Metrics => {
                let metrics = report.metrics(self.alloc)?;
                let kind = HeaderValue::from_static("text/plain; version=0.0.4; charset=utf-8");
                fill(response, kind, &metrics)
            }
            Form::Document => {
                let (name, map) = (self.source.name(), self.source.map());
                fill_document(response, &report.html(self.alloc, name, &map)?)
            },
        }
    }

    // Gives a response the map of the device: JSON, which is null if no metadata is kept.
    fn fill_map(&self, response: &mut Response) -> Result<(), AllocError> {
        let json = HeaderValue::from_static("application/json");
        match self.source.map() {
            None => fill(response, json, "null"),
            Some(Ok(map)) => fill(response, json, &map.json(self.alloc)?),
            Some(Err(_)) => {
                response.status = StatusCode::SERVICE_UNAVAILABLE;
                fill_text(response, NO_MAP)
            }
        }
    }
}

// Gives a response a plain text.
fn fill_text(response: &mut Response, text: &str) -> Result<(), AllocError> {
    fill(
        response,
        HeaderValue::from_static("text/plain; charset=utf-8"),
        text,
    )
}

// Gives a response the document for people. It has all that it needs in itself, and asks this server alone.
fn fill_document(response: &mut Response, document: &str) -> Result<(), AllocError> {
    let policy = HeaderValue::from_static(
        "default-src 'none'; connect-src 'self'; img-src data:; style-src 'unsafe-inline'; script-src 'unsafe-inline'",
    );
    response.add_header(header::CONTENT_SECURITY_POLICY, policy)?;
    fill(
        response,
        HeaderValue::from_static("text/html; charset=utf-8"),
        document,
    )
}

// Gives a response its body and the body's type.
fn fill(response: &mut Response, kind: HeaderValue, body: &str) -> Result<(), AllocError> {
    response.add_header(header::CONTENT_TYPE, kind)?;
    response.body.put_slice(body.as_bytes())?;
    Ok(())
}

/// Answers one request of a client with a report of this source: the status lines at `/`, or a document of HTML if the client takes one;
/// the same as JSON at `/status.json`, and as metrics for Prometheus at `/metrics`; a map of the device at `/map.json`. The source is asked once the request is there. Then
/// the connection is to be closed. Without a report, the answer says that there is none now (503).
pub fn answer_one<S: ReportSource + Drop, R: Read, W: Write>(
    alloc: Global,
    keys: RandomState,
    source: S,
    reader: &mut R,
    writer: &mut W,
) -> io::Result<()> {
    let mut page = Page { alloc, source };
    let mut connection = Connection::new(alloc, keys, Config::default());
    serve(&mut connection, &mut page, reader, writer)
}
